// Laws of thin functions: a function over a record that is lent, which copies the record out, calls a
// function by value and stores the record that came back. There is no code here.
#![tactic(auto)]
