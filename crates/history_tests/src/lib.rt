// Histories and what they print, through which all four pairs of parts go.

#![tactic(auto)]

#[cfg(test)]
mod tests;
