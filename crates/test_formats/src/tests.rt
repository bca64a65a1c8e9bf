// What is read of texts and bytes, what is refused in them, and what is written.
mod airports;
mod bodies;
mod entries;
mod framing;
mod messages;
mod seasons;
