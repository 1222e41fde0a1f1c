// The demands on reader, writer and clearer, as theorems about the definitions that their promises cite. No function.
