// No function: the calls as C makes them are the calls of a history.
#![tactic(auto)]
