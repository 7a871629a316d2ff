// What C calls: the group rules, encoding and correcting, on numbers and byte slices.
#![tactic(auto)]

mod groups;
mod reply;
mod symbols;
mod version;
mod words;
