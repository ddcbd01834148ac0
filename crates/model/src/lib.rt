// What the store means: the plain types of its state and of its answers, and in specs/ what each call comes to.
#![tactic(auto)]

pub mod answer;
pub mod body;
pub mod door;
pub mod refusal;
pub mod slot;
