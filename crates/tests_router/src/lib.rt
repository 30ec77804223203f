//! Tests of what the router is made of: the book, the turns, the core, the ledger of effects, and
//! the nodes.
#![tactic(auto)]

#[cfg(test)]
mod book_calls;
#[cfg(test)]
mod books;
#[cfg(test)]
mod by_hand;
#[cfg(test)]
mod deliveries;
#[cfg(test)]
mod endings;
#[cfg(test)]
mod health;
#[cfg(test)]
mod holders;
#[cfg(test)]
mod ledger;
#[cfg(test)]
mod most;
#[cfg(test)]
mod operations;
#[cfg(test)]
mod readers;
#[cfg(test)]
mod readings;
#[cfg(test)]
mod refusals;
#[cfg(test)]
mod repositories;
#[cfg(test)]
mod routes;
#[cfg(test)]
mod steps;
#[cfg(test)]
mod vote_refusals;
#[cfg(test)]
mod words;
