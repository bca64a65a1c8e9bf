// What is read of bodies.
mod commits;
mod reports;
mod visits;

// What was read, or nothing.
fn text_of(read: &Option<String>) -> &str {
    match read {
        Some(text) => text.as_str(),
        None => "",
    }
}
