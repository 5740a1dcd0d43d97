// What the customer is promised, in one room: the three demands, the worked figures, that no contract leaves anything open, and that the contracts are the meanings spoken of. There is no code.
#![tactic(auto)]
