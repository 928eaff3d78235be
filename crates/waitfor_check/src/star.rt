use crate::Members;
use interconnection::Shape;

/// A shape, and its members: the star states that the star may show, rising.
#[derive(Debug, Drop)]
pub struct Star {
    pub shape: Shape,
    pub members: Members,
}
