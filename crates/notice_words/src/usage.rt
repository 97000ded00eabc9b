/// How the program is used, in lines of at most 80 characters.
pub const USAGE: &str = "\
usage: perses reduce --input F --output F --script F (--grammar F|--mode lines)
       perses check --input F --output F --journal F (--grammar F|--mode lines)
       perses normal --grammar F [--lexer F] [--start R] prints the normal form
       perses selftest --number N --size K [--mode M] reduces a generated case
Of an input that makes something fail, reduce writes the part that matters.
  --input F    the file to be reduced
  --output F   where the result is written
  --script F   gets the name of a file, and ends with 0 if that still fails
  --grammar F  the grammar of the input, in the notation of ANTLR 4
  --lexer F    the file of its lexer rules, where it is in two
  --mode M     perses (the default), hdd (deletes alone) or lines (no grammar)
  --start R    the rule that the input is of; else the first one
  --jobs N     so many scripts run at once, from 1 to 16; else 1
  --journal F  where each answer is kept; else the output's name and .journal
  --resume F   the journal of a run that was stopped: nothing is asked again
  --work D     the folder for candidates; else perses-work
  --keep T     a text that must stay, up to 8 times
  --protect A-B  lines A to B must stay, up to 8 times
  --protect-text T  each line with this text must stay, up to 8 times
  --only A-B   all lines but A to B must stay
  --squeeze    tries the input without comments and long gaps first
  --respell    gives what is left shorter names and numbers of the input
check says whether the files of a run agree; it takes --lexer, --start, --keep
and --squeeze too. PERSES_QUIET=1 silences standard error; without a terminal
PERSES_PROGRESS=1 adds a line each 10 s. See man ./docs/perses.1, docs/GUIDE.md.
";
