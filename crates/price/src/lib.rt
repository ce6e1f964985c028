// The price of a form: rules, passes, the listing of a cheapest form, and their theorems. All of it is in specs/.
#![tactic(auto)]
