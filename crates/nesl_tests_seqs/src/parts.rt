//! Parts of sequences.

pub const ROWS: &str = r#"% Lengths
length [] = 0 : 1 1 1
length [5] = 1 : 1 1 1
length [1,2,3] = 3 : 1 1 1
length "abc" = 3 : 1 1 1
length {TF} = 2 : 1 1 1
length < [1,2] [3] > = 2 : 1 1 1
% Elements at a place
element_at ( [5] 0 ) = 5 : 1 1 1
element_at ( [1,2,3] 2 ) = 3 : 1 1 1
element_at ( "abc" 1 ) = 'b : 1 1 1
element_at ( {TF} 1 ) = F : 1 1 1
element_at ( < [1,2] [3] > 0 ) = [1,2] : 3 1 3
element_at ( < ( 1 T ) > 0 ) = ( 1 T ) : 3 1 3
element_at ( [] 0 ) ! Range
element_at ( [1,2] 2 ) ! Range
element_at ( [1,2] -1 ) ! Range
element_at ( [1,2] MIN ) ! Range
element_at ( "ab" MAX ) ! Range
% One after the other
append ( [] [] ) = [] : 1 1 1
append ( [] [5] ) = [5] : 3 1 2
append ( [5] [] ) = [5] : 3 1 2
append ( [1,2] [3,4,5] ) = [1,2,3,4,5] : 11 1 6
append ( "ab" "c" ) = "abc" : 7 1 4
append ( {T} {F} ) = {TF} : 5 1 3
append ( < [1] > < [2,3] [4] > ) = < [1] [2,3] [4] > : 11 1 8
% Halves
bottop [] = < [] [] > : 3 1 3
bottop [5] = < [5] [] > : 5 1 4
bottop [1,2,3] = < [1,2] [3] > : 9 1 6
bottop [1,2,3,4] = < [1,2] [3,4] > : 11 1 7
bottop "abc" = < "ab" "c" > : 9 1 6
bottop {TF} = < {T} {F} > : 7 1 5
bottop < [1] [2,3] > = < < [1] > < [2,3] > > : 10 1 8
% First and last elements
take ( [] 0 ) = [] : 1 1 1
take ( [5] 1 ) = [5] : 3 1 2
take ( [1,2,3,4] 0 ) = [] : 5 1 1
take ( [1,2,3,4] 1 ) = [1] : 6 1 2
take ( [1,2,3,4] -1 ) = [4] : 6 1 2
take ( [1,2,3,4] 4 ) = [1,2,3,4] : 9 1 5
take ( [1,2,3,4] -4 ) = [1,2,3,4] : 9 1 5
take ( "abc" 2 ) = "ab" : 6 1 3
take ( {TF} -1 ) = {F} : 4 1 2
take ( < [1,2] [3] > 1 ) = < [1,2] > : 6 1 4
% All but the first or last
drop ( [] 0 ) = [] : 1 1 1
drop ( [5] 1 ) = [] : 2 1 1
drop ( [1,2,3,4] 0 ) = [1,2,3,4] : 9 1 5
drop ( [1,2,3,4] 1 ) = [2,3,4] : 8 1 4
drop ( [1,2,3,4] -1 ) = [1,2,3] : 8 1 4
drop ( [1,2,3,4] 4 ) = [] : 5 1 1
drop ( [1,2,3,4] -4 ) = [] : 5 1 1
drop ( "abc" 2 ) = "c" : 5 1 2
drop ( {TF} -1 ) = {T} : 4 1 2
drop ( < [1,2] [3] > 1 ) = < [3] > : 5 1 3
% More elements than there are
take ( [] 1 ) ! Range
take ( [] -1 ) ! Range
take ( [1,2] 3 ) ! Range
take ( [1,2] -3 ) ! Range
take ( [1,2] MIN ) ! Range
take ( "ab" MAX ) ! Range
drop ( [] 1 ) ! Range
drop ( [] -1 ) ! Range
drop ( [1,2] 3 ) ! Range
drop ( [1,2] -3 ) ! Range
drop ( [1,2] MIN ) ! Range
drop ( "ab" MAX ) ! Range
% From the last to the first
reverse [] = [] : 1 1 1
reverse [5] = [5] : 3 1 2
reverse [1,2,3] = [3,2,1] : 7 1 4
reverse "abc" = "cba" : 7 1 4
reverse {TTF} = {FTT} : 7 1 4
reverse < [1,2] [3] > = < [3] [1,2] > : 8 1 6
% Numbers some places on
rotate ( [] 3 ) = [] : 1 1 1
rotate ( [5] -2 ) = [5] : 3 1 2
rotate ( [1,2,3,4] 0 ) = [1,2,3,4] : 9 1 5
rotate ( [1,2,3,4] 1 ) = [4,1,2,3] : 9 1 5
rotate ( [1,2,3,4] -1 ) = [2,3,4,1] : 9 1 5
rotate ( [1,2,3,4] 6 ) = [3,4,1,2] : 9 1 5
rotate ( [1,2,3] MAX ) = [3,1,2] : 7 1 4
rotate ( [1,2,3] MIN ) = [3,1,2] : 7 1 4
% Elements some places on
rotate ( "abc" 1 ) = "cab" : 7 1 4
rotate ( {TFF} 1 ) = {FTF} : 7 1 4
rotate ( < [1,2] [3] > 1 ) = < [3] [1,2] > : 8 1 6
% Another number at a place
rep ( [5] ( 9 0 ) ) = [9] : 3 1 2
rep ( [1,2,3] ( 9 0 ) ) = [9,2,3] : 7 1 4
rep ( [1,2,3] ( 9 2 ) ) = [1,2,9] : 7 1 4
rep ( [] ( 9 0 ) ) ! Range
rep ( [1,2] ( 9 2 ) ) ! Range
rep ( [1,2] ( 9 -1 ) ) ! Range
% Another element at a place
rep ( "abc" ( 'z 1 ) ) = "azc" : 7 1 4
rep ( {TF} ( F 0 ) ) = {FF} : 5 1 3
rep ( < [1,2] [3] > ( [4,5,6] 1 ) ) = < [1,2] [4,5,6] > : 10 1 8
rep ( < [1,2] [3] > ( [] 0 ) ) = < [] [3] > : 6 1 4"#;
