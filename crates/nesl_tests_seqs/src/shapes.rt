//! Arguments whose parts are of another shape.

pub const ROWS: &str = r#"length 1 ! some
length T ! some
length ( [1] [1] ) ! some
element_at ( [1] T ) ! some
element_at T ! some
element_at ( 1 0 ) ! some
append ( [1] 1 ) ! some
append T ! some
append < [1] [2] > ! some
dist ( 1 'a ) ! some
dist T ! some
range ( 1 T ) ! some
range T ! some
range ( 1 ( 2 3 ) ) ! some
range_by ( 1 2 ) ! some
range_by T ! some
range_by ( ( 1 2 ) 3 ) ! some
index 'a ! some
index T ! some
sum {T} ! some
sum T ! some
sum < 1 T > ! some
any [1] ! some
any T ! some
all [1] ! some
all T ! some
count [1] ! some
count T ! some
bottop 1 ! some
bottop T ! some
take ( 1 0 ) ! some
take T ! some
drop ( [1] [1] ) ! some
drop T ! some
reverse ( 1 2 ) ! some
reverse T ! some
rotate ( [1] 'a ) ! some
rotate T ! some
zip ( [1] 1 ) ! some
zip T ! some
rep ( [1] 0 ) ! some
rep T ! some
rep ( [1] ( 2 T ) ) ! some
eql [1,1] ! some
eql T ! some
max_val {T} ! some
max_val T ! some
max_val < 1 'a T > ! some
min_val {T} ! some
min_val T ! some
max_index {T} ! some
max_index T ! some
min_index < [1] > ! some
min_index T ! some
plus_scan "a" ! some
plus_scan T ! some
or_scan "a" ! some
or_scan T ! some
or_scan < 1 T > ! some
and_scan "a" ! some
and_scan T ! some
flatten [1] ! some
flatten T ! some
partition ( [1] {T} ) ! some
partition T ! some
split ( [1] [1] ) ! some
split T ! some
unzip [1] ! some
unzip T ! some
odd_elts 1 ! some
odd_elts T ! some
even_elts 1 ! some
even_elts T ! some
interleave ( [1] 1 ) ! some
interleave T ! some
gather ( [1] {T} ) ! some
gather T ! some
gather ( 1 [0] ) ! some
permute ( [1] {T} ) ! some
permute T ! some
permute ( 1 [0] ) ! some
write ( [1] [0] ) ! some
write T ! some
write ( [1] < ( T 0 ) > ) ! some"#;
