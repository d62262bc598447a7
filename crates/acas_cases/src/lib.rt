//! Runs the cases of `acas_rows`, which says how a case is written.
#![tactic(auto)]

#[cfg(test)]
mod cases;
#[cfg(test)]
mod each_call;
#[cfg(test)]
mod forms;
#[cfg(test)]
mod hostile;
#[cfg(test)]
mod judge;
#[cfg(test)]
mod outside;
#[cfg(test)]
mod report;
#[cfg(test)]
mod runner;
#[cfg(test)]
mod sees;
#[cfg(test)]
mod steps;
#[cfg(test)]
mod tests;
#[cfg(test)]
mod texts;
