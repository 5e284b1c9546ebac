// The worked figures, proved about the definitions of rules, inspections and finishes.

#![tactic(auto)]

ghost use Rattle.figures.specs.Figures.{WorstFigures, FinishFigures};

// Does nothing: its contract is that the figures are right.
#[tactic(auto, using(crate::proofs::Table::worst_figures, crate::proofs::Table::finish_figures))]
pub fn figures_stand()
    ensures worst { WorstFigures }
    ensures finish { FinishFigures }
{}
