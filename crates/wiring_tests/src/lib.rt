// The wirings and layers at work: somebody else's delivery, facts about whole piles, and tests against answers written by hand.
#![tactic(auto)]

#[cfg(test)]
mod bottoms;
mod facts;
#[cfg(test)]
mod making;
#[cfg(test)]
mod piles;
mod slot;
#[cfg(test)]
mod step;
