// When a table of copies is in order, and when it has become other copies: the words in which changes and splits of the table are promised.
#![tactic(auto)]
