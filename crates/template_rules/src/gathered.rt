// What is gathered of at most 64 components of words.
ghost use Rattle.template_rules.specs.Bounds.{Gathered};

use crate::TemplateSummary;

// A summary of at most 64 components of words, which bound its numbers.
#[derive(Clone, Copy, Debug, PartialEq)]
pub struct GatheredTemplate {
    pub summary: TemplateSummary,
    pub ghost bounds: { Gathered 64 summary },
}
