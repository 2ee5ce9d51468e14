// A fact that was read of a section is read again from its bytes in a head.
#![tactic(auto)]

ghost use Rattle.facts.specs.Laws.{FactsReadBack};

// What was read of a carried feature's section is read again from its bytes in a head, with as many rows.
pub fn facts_read_back()
    ensures { FactsReadBack }
{}
