//! Tests of texts, as they are read and printed: the lines of a script, their grammar, and how they are read in pieces, within their
//! bound and the budget; each line of an answer, a refusal and a report; the commands that a generated run asks for;
//! and worked tables of objects, and of what work is due beside a script.
#![tactic(auto)]

#[cfg(test)]
mod tests;
