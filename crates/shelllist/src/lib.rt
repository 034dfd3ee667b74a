// What a call on the shells promises, and lists of records as they are filled: definitions and theorems, and no code.

#![tactic(auto)]
