/// Which rows an OR node offers at a pair: all of an expansion, or those in which all E untils that are put off go on along one side. With all
/// of them the graph is the tableau, which tells whether there is a structure; with those of one side it is a part of it, often far
/// smaller, from which structures are unravelled all the same.
#[derive(Clone, Copy, Debug, PartialEq, Eq)]
pub enum Breadth {
    Whole,
    OneSided,
}
