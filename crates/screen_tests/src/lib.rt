// Examples of cutting and painting.
#![tactic(auto)]

#[cfg(test)]
mod examples;
