// The plain store at work: deep and wide terms, names of all bytes, too few words, marks.

#![tactic(auto)]

#[cfg(test)]
mod tests;
