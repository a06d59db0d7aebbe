// Where a walk ends.

/// Where a walk ends: the directory of the path's last component, and the node that the path names, if
/// any. Both are the directory itself where the walk ends with `..` or took no component.
#[derive(Clone, Copy, Debug, PartialEq, Eq)]
pub struct Place {
    /// The directory's node number.
    pub dir: u32,
    /// The node's number.
    pub node: Option<u32>,
}
