// What rendering a part of a signature comes to: a text that was appended to a lent buffer, or none, and the position after it.

#![tactic(auto)]

// The place after the text and the position after what was read, or, where there is no text, the position after the bytes that the
// reading used up.
pub type Rendering = Result<(usize, usize), usize>;
