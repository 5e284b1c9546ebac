// What the search goes by: a fault rule, with its clean quarters, and an inspection.
use crate::powers::CleanQuarters;
use inspections::Inspection;
use rules::Rule;

#[derive(Drop)]
pub(crate) struct Judge<'a, R: Rule, I: Inspection> {
    pub clean: CleanQuarters<'a, R>,
    pub inspection: &'a I,
}
