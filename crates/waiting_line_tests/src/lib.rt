// Tables of calls, and what each is answered, through which both waiting lines go.

#![tactic(auto)]

#[cfg(test)]
mod tests;
