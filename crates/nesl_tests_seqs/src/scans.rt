//! Scans.

pub const ROWS: &str = r#"% Sums before each
plus_scan [] = [] : 1 1 1
plus_scan [7] = [0] : 3 2 2
plus_scan [3,9,-2,9] = [0,3,12,10] : 9 4 5
plus_scan [MAX,1] = [0,MAX] : 5 3 3
plus_scan [MIN,-1] = [0,MIN] : 5 3 3
plus_scan [MAX,1,0] ! Overflow
plus_scan [MAX,1,-1] ! Overflow
plus_scan [MIN,-1,0] ! Overflow
% Whether one before is true
or_scan {} = {} : 1 1 1
or_scan {T} = {F} : 3 2 2
or_scan {F} = {F} : 3 2 2
or_scan {FTF} = {FFT} : 7 3 4
or_scan {TFT} = {FTT} : 7 3 4
% Whether all before are true
and_scan {} = {} : 1 1 1
and_scan {T} = {T} : 3 2 2
and_scan {F} = {T} : 3 2 2
and_scan {FTF} = {TFF} : 7 3 4
and_scan {TFT} = {TTF} : 7 3 4
% Bits of one before
or_scan [] = [] : 1 1 1
or_scan [6] = [0] : 3 2 2
or_scan [6,3] = [0,6] : 5 3 3
or_scan [6,3,8] = [0,6,7] : 7 3 4
or_scan [MIN,5,0] = [0,MIN,-9223372036854775803] : 7 3 4
% Bits of all before
and_scan [] = [] : 1 1 1
and_scan [6] = [-1] : 3 2 2
and_scan [6,3] = [-1,6] : 5 3 3
and_scan [6,3,1] = [-1,6,2] : 7 3 4
and_scan [MIN,5,0] = [-1,MIN,0] : 7 3 4"#;
