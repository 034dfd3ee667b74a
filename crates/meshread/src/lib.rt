// What the reader of a mesh's text promises, and that reading and writing undo each other: definitions and theorems, and no code.

#![tactic(auto)]
