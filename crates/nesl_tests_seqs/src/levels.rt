//! Sequences of sequences, and sequences that are woven.

pub const ROWS: &str = r#"% One level removed
flatten < > = [] : 1 1 1
flatten < [] > = [] : 2 1 1
flatten < [5] > = [5] : 3 1 2
flatten < [1,2] [] [3] > = [1,2,3] : 7 1 4
flatten < "ab" "" "c" > = "abc" : 7 1 4
flatten < {T} {FT} > = {TFT} : 6 1 4
flatten < < [1,2] > < [3] [4] > > = < [1,2] [3] [4] > : 10 1 8
% Elements at odd places
odd_elts [] = [] : 1 1 1
odd_elts [5] = [] : 2 1 1
odd_elts [1,2,3,4] = [2,4] : 7 1 3
odd_elts [1,2,3,4,5] = [2,4] : 8 1 3
odd_elts "abcd" = "bd" : 7 1 3
odd_elts {TFT} = {F} : 5 1 2
odd_elts < [1] [2,3] [4,5,6] > = < [2,3] > : 7 1 4
% Elements at even places
even_elts [] = [] : 1 1 1
even_elts [5] = [5] : 3 1 2
even_elts [1,2,3,4] = [1,3] : 7 1 3
even_elts [1,2,3,4,5] = [1,3,5] : 9 1 4
even_elts "abcd" = "ac" : 7 1 3
even_elts {TFT} = {TT} : 6 1 3
even_elts < [1] [2,3] [4,5,6] > = < [1] [4,5,6] > : 10 1 7
% Elements in turn
interleave ( [] [] ) = [] : 1 1 1
interleave ( [5] [] ) = [5] : 3 1 2
interleave ( [1] [2] ) = [1,2] : 5 1 3
interleave ( [1,3] [2,4] ) = [1,2,3,4] : 9 1 5
interleave ( [1,3,5] [2,4] ) = [1,2,3,4,5] : 11 1 6
interleave ( "ac" "b" ) = "abc" : 7 1 4
interleave ( {T} {F} ) = {TF} : 5 1 3
interleave ( < [1] > < [2,3] > ) = < [1] [2,3] > : 8 1 6
interleave ( [] [1] ) ! Length
interleave ( [1] [2,3] ) ! Length
interleave ( [1,2,3] [4] ) ! Length
% Those with each flag
split ( [] {} ) = < [] [] > : 3 1 3
split ( [7] {T} ) = < [] [7] > : 6 1 4
split ( [1,2,3] {TFT} ) = < [2] [1,3] > : 12 1 6
split ( "abcd" {FFTF} ) = < "abd" "c" > : 15 1 7
split ( {TFF} {FTF} ) = < {TF} {F} > : 12 1 6
split ( < "a" "bc" "d" > {TFT} ) = < < "bc" > < "a" "d" > > : 16 1 10
% Flags of another length
split ( [7] {TF} ) ! Length
split ( [] {T} ) ! Length
split ( [1,2] {T} ) ! Length
% Pieces of lengths
partition ( [] [] ) = < > : 1 1 1
partition ( [] [0,0] ) = < [] [] > : 5 1 3
partition ( [7] [1] ) = < [7] > : 5 1 3
partition ( [4,5,6] [1,2] ) = < [4] [5,6] > : 11 1 6
partition ( "abc" [0,2,0,1] ) = < "" "ab" "" "c" > : 15 1 8
partition ( {TF} [2] ) = < {TF} > : 7 1 4
partition ( < "ab" "c" > [1,1] ) = < < "ab" > < "c" > > : 12 1 8
% Counts that are no lengths
partition ( [7] [] ) ! Count
partition ( [7] [2,-1] ) ! Count
partition ( [7] [-1,2] ) ! Count
partition ( [7] [0] ) ! Count
partition ( [7] [2] ) ! Count
partition ( [7] [MAX,MAX,3] ) ! Count
partition ( [] [1] ) ! Count"#;
