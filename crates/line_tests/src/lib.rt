// Examples of what lines do, and of what goes wrong where a flush is left out.
#![tactic(auto)]

#[cfg(test)]
mod drip;
#[cfg(test)]
mod examples;
