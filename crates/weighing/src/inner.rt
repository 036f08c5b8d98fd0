// Segments of terms by each column, and nonzero values gathered to segments.
pub mod gather;
pub mod weigh;
