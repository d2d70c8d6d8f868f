use binding_terms::CatId;
use scheme_terms::Scheme;
use sqlite_items::Items;

/// Two schemes under locals of these categories, the innermost last.
#[derive(Drop)]
pub struct Equation {
    pub scope: Items<CatId>,
    pub left: Scheme,
    pub right: Scheme,
}
