//! The same commands given to a desk over memory and to a desk over tables on disks. And stores and keepers that fail:
//! what a desk answers, sends and writes then, and after it is opened again.
#![tactic(auto)]

#[cfg(test)]
mod tests;
