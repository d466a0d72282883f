// Histories through a link over each pair of a waiting line and a slot clock: all four answer what the tables say.

#![tactic(auto)]

#[cfg(test)]
mod crossing;
#[cfg(test)]
mod desks;
#[cfg(test)]
mod follow;
#[cfg(test)]
mod histories;
#[cfg(test)]
mod limits;
