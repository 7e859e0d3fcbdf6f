//! Pairs of sequences, sequences of pairs, and equality.

pub const ROWS: &str = r#"% Pairs of elements
zip ( [] "" ) = < > : 1 1 1
zip ( [1] "a" ) = < ( 1 'a ) > : 6 1 4
zip ( [1,2] {TF} ) = < ( 1 T ) ( 2 F ) > : 11 1 7
zip ( [1,2,3] [4,5,6] ) = < ( 1 4 ) ( 2 5 ) ( 3 6 ) > : 16 1 10
zip ( [1] < [2,3] > ) = < ( 1 [2,3] ) > : 8 1 6
zip ( [1] "ab" ) ! Length
zip ( [] "a" ) ! Length
zip ( [1,2] "a" ) ! Length
% Left and right parts
unzip < > = ( [] {} ) : 3 1 3
unzip < ( 1 2 ) > = ( [1] [2] ) : 6 1 5
unzip < ( 1 T ) ( 2 F ) > = ( [1,2] {TF} ) : 9 1 7
unzip < ( 1 [2,3] ) ( 4 [] ) > = ( [1,4] < [2,3] [] > ) : 11 1 9
unzip < ( "ab" 'c ) > = ( < "ab" > "c" ) : 8 1 7
% Equal leaves and texts
eql ( 5 5 ) = T : 3 1 1
eql ( 5 6 ) = F : 3 1 1
eql ( T T ) = T : 3 1 1
eql ( 'a 'b ) = F : 3 1 1
eql ( "ab" "ab" ) = T : 7 1 1
eql ( "ab" "ac" ) = F : 7 1 1
eql ( "ab" "abc" ) = F : 8 1 1
% Equal sequences
eql ( [] [] ) = T : 3 1 1
eql ( [1] [1] ) = T : 5 1 1
eql ( [1,2,3] [1,2,3] ) = T : 9 1 1
eql ( [1,2,3] [1,2,4] ) = F : 9 1 1
eql ( [1,2] [1,2,3] ) = F : 8 1 1
eql ( [] [1] ) = F : 4 1 1
eql ( {TF} {TT} ) = F : 7 1 1
% Equal pairs and inner sequences
eql ( ( 1 [2,3] ) ( 1 [2,3] ) ) = T : 11 1 1
eql ( ( 1 [2,3] ) ( 1 [2,4] ) ) = F : 11 1 1
eql ( < [1] [] > < [1] [] > ) = T : 9 1 1
eql ( < [1] [2] > < [1] [3] > ) = F : 11 1 1"#;
