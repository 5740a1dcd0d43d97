// The words that the definitions of every crate share: laws of a choice by a test, a table of rows, a list of bytes, a contract that leaves nothing open.
// There is no code here.
#![tactic(auto)]
