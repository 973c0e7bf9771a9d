// The bench at work, against answers written by hand.
#![tactic(auto)]

#[cfg(test)]
mod firing;
#[cfg(test)]
mod making;
#[cfg(test)]
mod playing;
