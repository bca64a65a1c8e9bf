// What screens see.
mod halls;
mod looks;
