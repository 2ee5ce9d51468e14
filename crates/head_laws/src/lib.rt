// What heads are good for, and what the definitions say of some bytes: each as what a function ensures.
#![tactic(auto)]

ghost use Rattle.facts.specs.Laws.{HeadsSpeak};
ghost use Rattle.head_laws.specs.Examples.{Examples};

// A head speaks for its store.
pub fn heads_stand()
    ensures { HeadsSpeak }
{}

// Keys, ids, texts and two heads have the bytes that the rules give.
pub fn examples_stand()
    ensures { Examples }
{}
