//! Sums, and truth values of all.

pub const ROWS: &str = r#"% Sums
sum [] = 0 : 1 1 1
sum [5] = 5 : 2 2 1
sum [1,2,3,4] = 10 : 5 4 1
sum [MAX,1,-1] = MAX : 4 3 1
sum [-1,MIN,1] = MIN : 4 3 1
sum [MAX,1] ! Overflow
sum [-1,MIN] ! Overflow
% Whether one is true
any {} = F : 1 1 1
any {T} = T : 2 2 1
any {F} = F : 2 2 1
any {FTF} = T : 4 3 1
any {FFFF} = F : 5 4 1
% Whether all are true
all {} = T : 1 1 1
all {T} = T : 2 2 1
all {F} = F : 2 2 1
all {TTF} = F : 4 3 1
all {TTTT} = T : 5 4 1
% How many are true
count {} = 0 : 1 1 1
count {T} = 1 : 2 2 1
count {F} = 0 : 2 2 1
count {TFT} = 2 : 4 3 1
count {TTTT} = 4 : 5 4 1"#;
