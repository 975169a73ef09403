//! Documents and files put together by hand, one for each choice that their definitions make, by public calls.
#![tactic(auto)]

#[cfg(test)]
mod blocks;
#[cfg(test)]
mod crowded;
#[cfg(test)]
mod document_ticks;
#[cfg(test)]
mod documents;
#[cfg(test)]
mod expecting;
#[cfg(test)]
mod judging;
#[cfg(test)]
mod known;
#[cfg(test)]
mod palettes;
#[cfg(test)]
mod parts;
#[cfg(test)]
mod payloads;
#[cfg(test)]
mod pieces;
#[cfg(test)]
mod sections;
#[cfg(test)]
mod sectors;
#[cfg(test)]
mod stored;
#[cfg(test)]
mod tags;
#[cfg(test)]
mod writing;
