// What the program does with files, disks and streams that fail, and without watches. The
// expected texts are written by hand from the format of requests and replies.
mod crashes;
mod failing;
mod feeds;
mod imports;
mod journals;
mod runs;
mod upgrades;
mod versions;
