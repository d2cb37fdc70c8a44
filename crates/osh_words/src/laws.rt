//! What holds of all words, and lines with what they spell.

ghost use Rattle.std.specs.Prelude.{[], codes, true, false};
ghost use Rattle.osh_words.specs.declared.command.Command.TheVariants as command;
ghost use Rattle.osh_words.specs.Spelled.{Spells};
ghost use Rattle.osh_words.specs.Unique.{IsUnique};
ghost use Rattle.osh_words.specs.Lines.{words_on, IsRefused};

/// Words spell at most one command.
pub fn spelled_once()
    ensures { IsUnique }
{}

/// Lines that spell a command.
pub fn spelled_lines()
    ensures check { Spells (words_on (codes "check f.osh")) (command.Check (codes "f.osh")) }
    ensures score { Spells (words_on (codes "score f.osh c.cfg")) (command.Score (codes "f.osh") (codes "c.cfg")) }
    ensures meaning { Spells (words_on (codes "meaning f.osh")) (command.Meaning (codes "f.osh")) }
    ensures usual { Spells (words_on (codes "run f.osh c.cfg")) (command.Run false 64 16 (codes "f.osh") (codes "c.cfg")) }
    ensures options { Spells (words_on (codes "run -spill 0 -serial -cap 01024 f.osh c.cfg")) (command.Run true 1024 0 (codes "f.osh") (codes "c.cfg")) }
    ensures gen_least { Spells (words_on (codes "gen 7 0")) (command.Gen 7 0) }
    ensures gen_most { Spells (words_on (codes "gen 0000000000001000000 9999999999999999999")) (command.Gen 1000000 9999999999999999999) }
{}

/// Lines that spell none.
pub fn refused_lines()
    ensures none { IsRefused [] }
    ensures empty { IsRefused (words_on []) }
    ensures zero_cap { IsRefused (words_on (codes "run -cap 0 f.osh c.cfg")) }
    ensures one_name { IsRefused (words_on (codes "run f.osh")) }
    ensures high_cap { IsRefused (words_on (codes "run -cap 1025 f.osh c.cfg")) }
    ensures high_spill { IsRefused (words_on (codes "run -spill 1025 f.osh c.cfg")) }
    ensures twice { IsRefused (words_on (codes "run -serial -serial f.osh c.cfg")) }
    ensures cap_twice { IsRefused (words_on (codes "run -cap 1 -cap 1 f.osh c.cfg")) }
    ensures behind { IsRefused (words_on (codes "run f.osh c.cfg -serial")) }
    ensures signed { IsRefused (words_on (codes "run -cap +1 f.osh c.cfg")) }
    ensures twenty_digits { IsRefused (words_on (codes "gen 00000000000000000007 0")) }
    ensures few_orders { IsRefused (words_on (codes "gen 6 0")) }
    ensures dash { IsRefused (words_on (codes "check -f")) }
    ensures quote { IsRefused (words_on (codes "check it's")) }
    ensures no_name { IsRefused (words_on (codes "check ")) }
    ensures more { IsRefused (words_on (codes "meaning f.osh c.cfg")) }
    ensures case { IsRefused (words_on (codes "Check f.osh")) }
{}
