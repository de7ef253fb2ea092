// 01's bench rows that are proved, in one record: specs/Bench.antt. There is no code.

#![tactic(auto)]
