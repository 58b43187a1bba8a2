// The wiring sheets of the job.

/// Three nodes in a line, links 0–1 and 1–2, one layer.
pub(crate) const LINE: [u8; 22] = [
    3, b'L', 0, 16, 0, 4, b'N', 0, 20, 0, 1, b'V', 0, 21, 0, 1, 0, 1, 1, 2, 3, 1,
];

/// The same with two layers.
pub(crate) const LINE_OF_TWO: [u8; 22] = [
    3, b'L', 0, 16, 0, 4, b'N', 0, 20, 0, 1, b'V', 0, 21, 0, 1, 0, 1, 1, 2, 3, 2,
];

/// Three nodes in a ring of links 0–1, 1–2 and 2–0, two layers.
pub(crate) const TRIANGLE: [u8; 24] = [
    3, b'L', 0, 16, 0, 6, b'N', 0, 22, 0, 1, b'V', 0, 23, 0, 1, 0, 1, 1, 2, 2, 0, 3, 2,
];

/// Three nodes, but link 0–1 alone.
pub(crate) const CUT_OFF: [u8; 20] = [
    3, b'L', 0, 16, 0, 2, b'N', 0, 18, 0, 1, b'V', 0, 19, 0, 1, 0, 1, 3, 1,
];

/// Five nodes in a ring of links 0–1, 1–2, 2–3, 3–4 and 4–0, one layer.
pub(crate) const RING: [u8; 28] = [
    3, b'L', 0, 16, 0, 10, b'N', 0, 26, 0, 1, b'V', 0, 27, 0, 1, 0, 1, 1, 2, 2, 3, 3, 4, 4, 0, 5, 1,
];
