//! Output text, written piece by piece. Contracts see it as the list of its bytes.
#![tactic(auto)]

mod output;
mod short_text;
#[cfg(test)]
mod tests;

pub use output::Output;
pub use short_text::ShortText;
