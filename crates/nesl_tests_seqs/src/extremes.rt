//! The greatest and the least.

pub const ROWS: &str = r#"% The greatest
max_val [5] = 5 : 2 2 1
max_val [3,-2,9,-2,9] = 9 : 6 4 1
max_val [3,9,9] = 9 : 4 3 1
max_val [MIN,MAX] = MAX : 3 3 1
max_val "x" = 'x : 2 2 1
max_val "neslab" = 's : 7 4 1
max_val [] ! Empty
max_val "" ! Empty
% The least
min_val [5] = 5 : 2 2 1
min_val [3,-2,9,-2,9] = -2 : 6 4 1
min_val [3,9,9] = 3 : 4 3 1
min_val [MIN,MAX] = MIN : 3 3 1
min_val "x" = 'x : 2 2 1
min_val "neslab" = 'a : 7 4 1
min_val [] ! Empty
min_val "" ! Empty
% The first place of the greatest
max_index [5] = 0 : 2 2 1
max_index [3,-2,9,-2,9] = 2 : 6 4 1
max_index [3,9,9] = 1 : 4 3 1
max_index [MIN,MAX] = 1 : 3 3 1
max_index "x" = 0 : 2 2 1
max_index "neslab" = 2 : 7 4 1
max_index [] ! Empty
max_index "" ! Empty
% The first place of the least
min_index [5] = 0 : 2 2 1
min_index [3,-2,9,-2,9] = 1 : 6 4 1
min_index [3,9,9] = 0 : 4 3 1
min_index [MIN,MAX] = 0 : 3 3 1
min_index "x" = 0 : 2 2 1
min_index "neslab" = 4 : 7 4 1
min_index [] ! Empty
min_index "" ! Empty"#;
