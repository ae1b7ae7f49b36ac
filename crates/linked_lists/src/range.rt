// An aligned range of labels: its first label, how many labels it has, its first item, and one more than its items.
#[derive(Clone, Copy, Drop)]
pub struct Range {
    pub base: u32,
    pub size: u32,
    pub first: u32,
    pub crowd: u32,
}
