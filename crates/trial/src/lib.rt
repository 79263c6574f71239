// Examples of what the libraries do, as tests.

#![tactic(auto)]

#[cfg(test)]
mod books;
#[cfg(test)]
mod faults;
#[cfg(test)]
mod packets;
#[cfg(test)]
mod windows;
