#![tactic(auto)]

// Lines of hex: bytes as hex both ways, the lists of a request, a text that grows.
pub mod answer;
pub mod digit;
pub mod hex;
pub mod lists;
pub mod parts;
pub mod put;
pub mod search;
pub mod text;
