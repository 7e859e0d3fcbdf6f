//! Sequences with no element, in each way that they are held.

pub const ROWS: &str = r#"% Functions of one
length [] = 0 : 1 1 1
length {} = 0 : 1 1 1
length "" = 0 : 1 1 1
sum [] = 0 : 1 1 1
sum {} = 0 : 1 1 1
sum "" = 0 : 1 1 1
any [] = F : 1 1 1
any {} = F : 1 1 1
any "" = F : 1 1 1
all [] = T : 1 1 1
all {} = T : 1 1 1
all "" = T : 1 1 1
count [] = 0 : 1 1 1
count {} = 0 : 1 1 1
count "" = 0 : 1 1 1
bottop [] = < [] [] > : 3 1 3
bottop {} = < [] [] > : 3 1 3
bottop "" = < [] [] > : 3 1 3
reverse [] = [] : 1 1 1
reverse {} = [] : 1 1 1
reverse "" = [] : 1 1 1
plus_scan [] = [] : 1 1 1
plus_scan {} = [] : 1 1 1
plus_scan "" = [] : 1 1 1
or_scan [] = [] : 1 1 1
or_scan {} = [] : 1 1 1
or_scan "" = [] : 1 1 1
and_scan [] = [] : 1 1 1
and_scan {} = [] : 1 1 1
and_scan "" = [] : 1 1 1
flatten [] = [] : 1 1 1
flatten {} = [] : 1 1 1
flatten "" = [] : 1 1 1
unzip [] = ( [] [] ) : 3 1 3
unzip {} = ( [] [] ) : 3 1 3
unzip "" = ( [] [] ) : 3 1 3
odd_elts [] = [] : 1 1 1
odd_elts {} = [] : 1 1 1
odd_elts "" = [] : 1 1 1
even_elts [] = [] : 1 1 1
even_elts {} = [] : 1 1 1
even_elts "" = [] : 1 1 1
max_val [] ! Empty
max_val {} ! Empty
max_val "" ! Empty
min_val [] ! Empty
min_val {} ! Empty
min_val "" ! Empty
max_index [] ! Empty
max_index {} ! Empty
max_index "" ! Empty
min_index [] ! Empty
min_index {} ! Empty
min_index "" ! Empty
% Functions of two
append ( [] [] ) = [] : 1 1 1
append ( [] {} ) = [] : 1 1 1
append ( [] "" ) = [] : 1 1 1
append ( {} [] ) = [] : 1 1 1
append ( {} {} ) = [] : 1 1 1
append ( {} "" ) = [] : 1 1 1
append ( "" [] ) = [] : 1 1 1
append ( "" {} ) = [] : 1 1 1
append ( "" "" ) = [] : 1 1 1
zip ( [] [] ) = [] : 1 1 1
zip ( [] {} ) = [] : 1 1 1
zip ( [] "" ) = [] : 1 1 1
zip ( {} [] ) = [] : 1 1 1
zip ( {} {} ) = [] : 1 1 1
zip ( {} "" ) = [] : 1 1 1
zip ( "" [] ) = [] : 1 1 1
zip ( "" {} ) = [] : 1 1 1
zip ( "" "" ) = [] : 1 1 1
interleave ( [] [] ) = [] : 1 1 1
interleave ( [] {} ) = [] : 1 1 1
interleave ( [] "" ) = [] : 1 1 1
interleave ( {} [] ) = [] : 1 1 1
interleave ( {} {} ) = [] : 1 1 1
interleave ( {} "" ) = [] : 1 1 1
interleave ( "" [] ) = [] : 1 1 1
interleave ( "" {} ) = [] : 1 1 1
interleave ( "" "" ) = [] : 1 1 1
gather ( [] [] ) = [] : 1 1 1
gather ( [] {} ) = [] : 1 1 1
gather ( [] "" ) = [] : 1 1 1
gather ( {} [] ) = [] : 1 1 1
gather ( {} {} ) = [] : 1 1 1
gather ( {} "" ) = [] : 1 1 1
gather ( "" [] ) = [] : 1 1 1
gather ( "" {} ) = [] : 1 1 1
gather ( "" "" ) = [] : 1 1 1
permute ( [] [] ) = [] : 1 1 1
permute ( [] {} ) = [] : 1 1 1
permute ( [] "" ) = [] : 1 1 1
permute ( {} [] ) = [] : 1 1 1
permute ( {} {} ) = [] : 1 1 1
permute ( {} "" ) = [] : 1 1 1
permute ( "" [] ) = [] : 1 1 1
permute ( "" {} ) = [] : 1 1 1
permute ( "" "" ) = [] : 1 1 1
write ( [] [] ) = [] : 1 1 1
write ( [] {} ) = [] : 1 1 1
write ( [] "" ) = [] : 1 1 1
write ( {} [] ) = [] : 1 1 1
write ( {} {} ) = [] : 1 1 1
write ( {} "" ) = [] : 1 1 1
write ( "" [] ) = [] : 1 1 1
write ( "" {} ) = [] : 1 1 1
write ( "" "" ) = [] : 1 1 1
split ( [] [] ) = < [] [] > : 3 1 3
split ( [] {} ) = < [] [] > : 3 1 3
split ( [] "" ) = < [] [] > : 3 1 3
split ( {} [] ) = < [] [] > : 3 1 3
split ( {} {} ) = < [] [] > : 3 1 3
split ( {} "" ) = < [] [] > : 3 1 3
split ( "" [] ) = < [] [] > : 3 1 3
split ( "" {} ) = < [] [] > : 3 1 3
split ( "" "" ) = < [] [] > : 3 1 3
partition ( [] [] ) = [] : 1 1 1
partition ( [] {} ) = [] : 1 1 1
partition ( [] "" ) = [] : 1 1 1
partition ( {} [] ) = [] : 1 1 1
partition ( {} {} ) = [] : 1 1 1
partition ( {} "" ) = [] : 1 1 1
partition ( "" [] ) = [] : 1 1 1
partition ( "" {} ) = [] : 1 1 1
partition ( "" "" ) = [] : 1 1 1
eql ( [] [] ) = T : 3 1 1
eql ( [] {} ) = T : 3 1 1
eql ( [] "" ) = T : 3 1 1
eql ( {} [] ) = T : 3 1 1
eql ( {} {} ) = T : 3 1 1
eql ( {} "" ) = T : 3 1 1
eql ( "" [] ) = T : 3 1 1
eql ( "" {} ) = T : 3 1 1
eql ( "" "" ) = T : 3 1 1
% Functions with a number
take ( [] 0 ) = [] : 1 1 1
take ( {} 0 ) = [] : 1 1 1
take ( "" 0 ) = [] : 1 1 1
drop ( [] 0 ) = [] : 1 1 1
drop ( {} 0 ) = [] : 1 1 1
drop ( "" 0 ) = [] : 1 1 1
rotate ( [] 7 ) = [] : 1 1 1
rotate ( {} 7 ) = [] : 1 1 1
rotate ( "" 7 ) = [] : 1 1 1
dist ( [] 2 ) = < [] [] > : 3 1 3
dist ( {} 2 ) = < [] [] > : 3 1 3
dist ( "" 2 ) = < [] [] > : 3 1 3
element_at ( [] 0 ) ! Range
rep ( [] ( T 0 ) ) ! Range
element_at ( {} 0 ) ! Range
rep ( {} ( T 0 ) ) ! Range
element_at ( "" 0 ) ! Range
rep ( "" ( T 0 ) ) ! Range"#;
